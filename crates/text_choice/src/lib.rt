// Which texts of a bundle are chosen, and what becomes of a lab under its quota: definitions and laws.
#![tactic(auto)]

use model::Refusal;

// What becomes of a lab's texts: they are let in, or left out, with the entries of their gather or with its refusal.
#[derive(Clone, Copy)]
pub enum Mark {
    LetIn(usize),
    OverQuota(usize),
    RefusedLab(Refusal),
}
