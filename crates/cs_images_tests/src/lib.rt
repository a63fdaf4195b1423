//! Tests of images, over their public calls alone.
#![tactic(auto)]

#[cfg(test)]
mod lines;
#[cfg(test)]
mod reading;
