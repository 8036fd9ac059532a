mod calls;
mod looking;
mod many;
mod side_by_side;
mod stage;
