//! The forms of the documents of procedures, one level at a time: which expression, statement, procedure or footprint
//! entry a document is, before its parts are read and before a name in it is known.
//!
//! Proved, by `form_in`, `statement_form`, `proc_form`, `footprint_form` and `entry_form`: which form one level of a
//! document has, or that it has none, exactly.
#![tactic(auto)]

mod expr_forms;
mod operator;
mod proc_forms;
mod stmt_forms;

pub use expr_forms::{BinaryForm, CountForm, ExistsForm, ExprForm, Section, SumForm, form_in};
pub use operator::Operator;
pub use proc_forms::{EntryForm, FootprintForm, ProcForm, entry_form, footprint_form, proc_form};
pub use stmt_forms::{
    DeleteForm, EachForm, ForForm, GetForm, IfForm, InsertForm, LetForm, PutForm, StmtForm,
    statement_form,
};
