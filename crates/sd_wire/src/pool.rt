//! The pool of options that the runs of entries are written from.
//!
//! The pool of options may grow past 256 while a message is written. What is refused is a run that would
//! stand at an index above 255, wherever it is found.
ghost use Rattle.std.specs.Prelude.{◌≡◌, ◌<◌, ◌↔◌, IsTrue, length, take, ◌++◌, IfOk, IfSome, IfNone};
ghost use Rattle.sd_wire.specs.encoding.Writing.{IsLeast, IsNowhere, Stands};

use crate::option::SdOption;
use std::alloc::AllocError;

/// The options are equal.
fn same(a: &SdOption, b: &SdOption) -> bool
    ensures { IsTrue result ↔ (a.now ≡ b.now) }
{
    a == b
}

/// The options begin with those of the run.
fn begins_with(options: &[SdOption], run: &[SdOption]) -> bool
    ensures { IsTrue result ↔ (take (length run.now) options.now ≡ run.now) }
{
    if options.len() < run.len() {
        return false;
    }
    for i in 0..run.len() {
        if !same(&options[i], &run[i]) {
            return false;
        }
    }
    true
}

/// The least index at which the pool holds a nonempty run in one piece.
fn find_run(pool: &[SdOption], run: &[SdOption]) -> Option<usize>
    requires { 0 < length run.now }
    ensures some { IfSome result (λ index. IsLeast pool.now run.now index) }
    ensures none { IfNone result (IsNowhere pool.now run.now) }
{
    for index in 0..pool.len() {
        if begins_with(&pool[index..], run) {
            return Some(index);
        }
    }
    None
}

/// Adds a run at the end of the pool.
fn add_run(pool: &mut Vec<SdOption>, run: &[SdOption]) -> Result<(), AllocError>
    ensures { IfOk result (λ _. pool.new.items ≡ pool.old.items ++ run.now) }
{
    for option in run {
        pool.push(option.clone()?)?;
    }
    Ok(())
}

/// Where a run stands in the pool, to which it is added if the pool holds it nowhere.
pub(crate) fn place_run(pool: &mut Vec<SdOption>, run: &[SdOption]) -> Result<usize, AllocError>
    ensures { IfOk result (λ index. Stands pool.old.items run.now index pool.new.items) }
{
    if run.is_empty() {
        return Ok(0);
    }
    if let Some(index) = find_run(pool, run) {
        return Ok(index);
    }
    let index = pool.len();
    add_run(pool, run)?;
    Ok(index)
}
