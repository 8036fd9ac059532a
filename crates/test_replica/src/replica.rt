mod bad_messages;
mod changes;
mod flattens;
mod merges;
mod named_calls;
mod refusals;
mod steps;
