// Examples that run: one for each rule of the sheet and of the report.
#![tactic(auto)]

#[cfg(test)]
mod edited;
#[cfg(test)]
mod loaded;
#[cfg(test)]
mod reported;
