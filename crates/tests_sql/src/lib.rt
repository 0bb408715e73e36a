//! The parser on texts with the trees that it makes of them, plans, the plain interpreter's answers, and scripts: read, written again,
//! generated, and what is printed of their answers. There is nothing here but tests.
#![tactic(auto)]

#[cfg(test)]
mod answers;
#[cfg(test)]
mod condition;
#[cfg(test)]
mod generated;
#[cfg(test)]
mod plans;
#[cfg(test)]
mod refusals;
#[cfg(test)]
mod rendering;
#[cfg(test)]
mod replies;
#[cfg(test)]
mod scripts;
#[cfg(test)]
mod statement;
#[cfg(test)]
mod trees;
