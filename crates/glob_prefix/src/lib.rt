// Which bytes does every path that fits a pattern begin with?
#![tactic(auto)]

pub mod prefix;
