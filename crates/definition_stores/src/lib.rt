// The definition's tests over a store of 32,768 bytes (specs/Stores.antt); apart, since they take longer to compute than all the others.
#![tactic(auto)]
