//! The text of certificates: written, and read back. What is written of a certificate that fits the
//! space is read again and equal, and only what is written so is read.
#![tactic(auto)]

mod guess;
mod law;
mod read;
mod refusal;
mod text;

pub use law::law_of_texts;
pub use read::read_cert;
pub use refusal::CertRefusal;
pub use text::{cert_text, put_cert};
