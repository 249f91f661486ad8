// How ciphers and suites behave on examples. There are only tests here, so that the crates they are of are proved once.
#![tactic(auto)]

#[cfg(test)]
mod ciphers;
#[cfg(test)]
mod two_suites;
