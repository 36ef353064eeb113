//! The forms of the parts of contracts, transactions, states and scenarios as tables: of each sort its forms, and of each form its
//! keys, with what the value behind each is read as. Also which form an object was meant to have, which of its keys lacks, and how that
//! may have been spelled.
#![tactic(auto)]

mod form;
mod key;
mod lacking;
mod laws;
mod sort;
mod spelling;

pub use form::{Form, fields_of, forms_of, more_of};
pub use key::{Key, key_word};
pub use lacking::{lacking_key, meant_form, nearest_key};
pub use laws::worked_forms;
pub use sort::{NamedSort, Numbers, ScenarioSort, Sort};
