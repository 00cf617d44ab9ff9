// What the grid, plan and cover questions test in a record with its lent tables (docs/BEHAVIOUR.md).
#![tactic(auto)]

mod entry;
pub mod record;
pub mod slicing;
pub mod tiles;
mod walk;
