mod devices;
mod gates;
mod netcdf;
mod running;
mod scripts;
mod tables;
mod texts;
mod words;
