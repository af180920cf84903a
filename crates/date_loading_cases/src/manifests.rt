//! Manifests: their bytes, and the dates that they have.

mod dates;
mod files;
