//! The register file: what each address answers, bytes as bits and as frames, and which activation a turn is of. The
//! rows of ports in `test_controller` have what their calls answer, one after the other.

mod activations;
mod addresses;
mod buffering;
mod bytes;
