mod budgets;
mod devices;
mod orders;
mod states;
mod verifier;
mod writers;
