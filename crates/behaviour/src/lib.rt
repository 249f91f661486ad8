// How stocks, reels and listings behave on examples. There are only tests here, so that the crates they are of are proved once.
#![tactic(auto)]

#[cfg(test)]
mod listings;
#[cfg(test)]
mod made;
#[cfg(test)]
mod reels;
#[cfg(test)]
mod stocks;
