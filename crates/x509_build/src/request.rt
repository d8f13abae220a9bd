//! Building PKCS #10 requests (CSRs; RFC 2986).

mod request_builder;

pub use request_builder::RequestBuilder;
