//! Files of tac_plus F4.0.4: what one says, by the lines that say it.
#![tactic(auto)]

mod blocks;
mod configuration;
mod fault;
mod keyword;
mod newer;
mod reader;
mod reading;
mod subject;
mod words;

pub use configuration::{
    Attribute, Command, Configuration, Extra, Host, Method, Names, Password, Place, Purpose, Rule,
    Service, Setting, Subject, Word,
};
pub use fault::{FileFault, Mistake};
pub use reading::read_configuration;
