//! How many moves were planned for the rows of a text.
ghost use Rattle.std.specs.Prelude.{◌≡◌, ◌++◌, IfOk, OnOk};
ghost use Rattle.serde_json.specs.View.{view};
ghost use Rattle.card_forms.specs.Planned.{planned_text, planned_data};

use byte_text::Text;
use serde_json::{Value, json};
use std::alloc::{AllocError, Global};

/// How many moves of declarer's side were planned: a number of them, or all.
#[derive(Clone, Copy, Debug)]
pub enum Planned {
    Moves(u8),
    All,
}

/// Appends how many moves were planned.
pub fn push_planned(text: &mut Text, alloc: Global, planned: Planned) -> Result<(), AllocError>
    ensures { OnOk result (text.new ≡ text.old ++ planned_text planned) }
{
    match planned {
        Planned::Moves(moves) => text.push_number(alloc, u64::from(moves)),
        Planned::All => text.push(b"all"),
    }
}

/// How many moves were planned, as a value of JSON.
pub fn planned_value(alloc: Global, planned: Planned) -> Result<Value, AllocError>
    ensures { IfOk result (λ value. view value ≡ planned_data planned) }
{
    match planned {
        Planned::Moves(moves) => json!(in alloc; moves),
        Planned::All => json!(in alloc; "all"),
    }
}
