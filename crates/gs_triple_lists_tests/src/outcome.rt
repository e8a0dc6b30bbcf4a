//! How a test ends.
use gs_model::Refusal;
use std::fmt::Display;
use std::test::Fail;

/// That nothing is wrong, or else what is.
pub fn none_wrong<D: Display + Drop>(wrong: Result<Option<D>, Refusal>) -> Result<(), Fail> {
    match wrong {
        Ok(None) => Ok(()),
        Ok(Some(what)) => Err(Fail::new(what)),
        Err(refusal) => Err(Fail::from(refusal)),
    }
}
