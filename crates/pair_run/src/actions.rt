//! The actions of a client's line.
ghost use Rattle.std.specs.Prelude.{◌≡◌, ◌<◌, ◌∷◌, [], List, Some, IfOk, IfSome, IfNone, IsTrue};
ghost use Rattle.std.specs.Prelude.{IsFalse, MatchOption, map, option_map, length};
ghost use Rattle.pair_run.specs.RunFile.{Action as SaidAction, AreActions, IsAction, fields_of};
ghost use Rattle.pair_run.specs.Views.{action_of};

use crate::run_file::Action;
use memory_wanted::{MemoryWanted, push, with_capacity};
use script_player::delivery::{are_lower_hex, read_bytes};
use script_player::fields::{after, part};
use std::alloc::Global;

/// How many actions a text spells, with one space between them; `None` where a field is none.
pub fn count_actions(text: &[u8]) -> Option<usize>
    ensures some { IfSome result (λ count.
        (actions : List SaidAction) × AreActions (fields_of text.now) actions × (length actions ≡ count)) }
    ensures none { IfNone result ((actions : List SaidAction) → AreActions (fields_of text.now) actions → ⊥) }
{
    let mut count = 0;
    let mut left = Some(text);
    while let Some(rest) = left {
        let (field, others) = first_field(rest);
        if !is_action(field) {
            return None;
        }
        count += 1;
        left = others;
    }
    Some(count)
}

/// The actions that a text spells, so many.
///
/// # Errors
///
/// [`MemoryWanted`] where there is no memory for them.
pub fn read_actions(alloc: Global, text: &[u8], count: usize) -> Result<Vec<Action>, MemoryWanted>
    ensures { (actions : List SaidAction) → AreActions (fields_of text.now) actions
        → IfOk result (λ read. map action_of read.items ≡ actions) }
{
    let mut actions = with_capacity(alloc, count)?;
    let mut left = Some(text);
    while let Some(rest) = left {
        let (field, others) = first_field(rest);
        if let Some(action) = read_action(alloc, field)? {
            push(&mut actions, action)?;
        }
        left = others;
    }
    Ok(actions)
}

/// The first field of a text, and what stands after the space that ends it, if one does.
fn first_field(text: &[u8]) -> (&[u8], Option<&[u8]>)
    ensures fields { MatchOption result.1 (fields_of text.now ≡ result.0.now ∷ [])
        (λ rest. fields_of text.now ≡ result.0.now ∷ fields_of rest.now) }
    ensures shorter { IfSome result.1 (λ rest. length rest.now < length text.now) }
{
    match part(text) {
        Some((field, rest)) => (field, Some(rest)),
        None => (text, None),
    }
}

/// Whether a field is an action.
fn is_action(field: &[u8]) -> bool
    ensures some { IsTrue result → (action : SaidAction) × IsAction field.now action }
    ensures none { IsFalse result → (action : SaidAction) → IsAction field.now action → ⊥ }
{
    if field == b"take".as_slice() {
        return true;
    }
    let Some(digits) = after(field, b"deliver:") else {
        return false;
    };
    are_lower_hex(digits)
}

/// The action that a field spells.
///
/// # Errors
///
/// [`MemoryWanted`] where there is no memory for its bytes.
fn read_action(alloc: Global, field: &[u8]) -> Result<Option<Action>, MemoryWanted>
    ensures { (action : SaidAction) → IsAction field.now action
        → IfOk result (λ found. option_map action_of found ≡ Some action) }
{
    if field == b"take".as_slice() {
        return Ok(Some(Action::Take));
    }
    let Some(digits) = after(field, b"deliver:") else {
        return Ok(None);
    };
    let Some(bytes) = read_bytes(alloc, digits)? else {
        return Ok(None);
    };
    Ok(Some(Action::Deliver(bytes)))
}
