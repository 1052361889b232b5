mod contract;
mod domain;
mod positions;
