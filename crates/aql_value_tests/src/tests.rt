mod devices;
mod same;
mod system;
mod types;
mod values;
mod words;
