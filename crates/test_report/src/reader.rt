mod faults;
mod traces;
