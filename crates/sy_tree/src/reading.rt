mod dates;
mod events;
mod propositions;
mod terms;
