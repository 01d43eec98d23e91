// Layers: each takes any table and is a table itself. What a layer does not name is as below.
pub mod choice;
pub mod reverse;
pub mod selection;
pub mod window;
