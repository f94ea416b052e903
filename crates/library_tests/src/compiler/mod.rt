pub mod descriptors;
mod formats;
