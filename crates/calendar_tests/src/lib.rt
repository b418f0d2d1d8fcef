// Tests of the crate `calendar` on tables of dates, months and times.

#![tactic(auto)]

#[cfg(test)]
mod tests;
