mod examples;
mod moves;
