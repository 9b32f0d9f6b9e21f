mod attempting;
mod batches;
mod calls;
mod gates;
mod numbers;
mod processing;
mod prompting;
mod rows;
mod runs;
mod setting;
mod settling;
mod stretches;
mod windows;

use std::fmt::Debug;
use std::process::Abort;

/// Asserts that two values are the same.
fn same<T: Debug + PartialEq + Copy>(rt: &impl Abort, got: T, wanted: T) {
    assert_eq!(rt; got, wanted);
}
