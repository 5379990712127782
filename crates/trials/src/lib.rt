// Worked examples, in a crate of their own so that what they are about is proved once. What is expected comes from the rules, by hand.
#![tactic(auto)]

#[cfg(test)]
mod dear;
#[cfg(test)]
mod doubled;
#[cfg(test)]
mod limits;
#[cfg(test)]
mod places;
#[cfg(test)]
mod prices;
#[cfg(test)]
mod reading;
#[cfg(test)]
mod refusals;
#[cfg(test)]
mod rows;
