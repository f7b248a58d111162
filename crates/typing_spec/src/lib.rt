//! The typing rules of C: the typed program, and every constraint of the language, as definitions.
#![tactic(auto)]
