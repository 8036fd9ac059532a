mod documents;
mod kept;
mod lines;
mod marks;
mod trace;
