// Books and tables by example.
mod blocks;
mod listings;
mod orders;
mod refusals;
mod stages;
