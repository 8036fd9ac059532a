mod agenda;
mod desk;
mod fixed;
