// Laws of cases, choices and lists that every crate may cite; no code.
#![tactic(auto)]
