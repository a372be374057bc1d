// The worked examples that document 01 marks P: proofs/Examples.antt has them as one table. proofs/Strikes.antt says which events are
// left when failed attempts are struck, in short lists; proofs/Outside.antt compares that with an outside book. There is nothing to
// run here.

#![tactic(auto)]
