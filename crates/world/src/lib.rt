//! The calls on a watch and their answers, and the model of a watch: what each call tests, answers and changes, in specs/. The model is
//! of one owner, that is of memory that nobody else alters between calls. The law of every run is proved of it.
#![tactic(auto)]

mod answer;
mod call;
mod reading;
mod refused;
mod theorem;

pub use answer::{Answer, Drawn, Shown};
pub use call::Call;
pub use reading::Reading;
pub use refused::{By, Refused};
pub use theorem::law;
