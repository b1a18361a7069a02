// Tests at the edges of what a list of calls takes that has asks among them. The contracts say it for all numbers; these show it run.
#![tactic(auto)]

#[cfg(test)]
mod list_tests;
