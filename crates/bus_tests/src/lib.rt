// Examples of every call and every refusal, on single buses and on stacks of them.
#![tactic(auto)]

#[cfg(test)]
mod accepted;
#[cfg(test)]
mod refused;
#[cfg(test)]
mod script;
#[cfg(test)]
mod stacks;
