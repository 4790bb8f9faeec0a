mod encoded;
mod terms;
mod texts;
