mod counters;
mod tasks;
