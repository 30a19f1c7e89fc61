use ps_ring::Angle;

/// A primitive gate of OpenQASM 2.0 on numbered qubits.
#[derive(Clone, Copy)]
pub enum Primitive {
    /// The one-qubit gate `U(theta, phi, lambda)` on qubit `q`, in the phase in which
    /// its upper left entry is `cos(theta / 2)`.
    U {
        theta: Angle,
        phi: Angle,
        lambda: Angle,
        q: u32,
    },
    /// The controlled not: qubit `t` is exchanged where qubit `c` is 1.
    Cx {
        c: u32,
        t: u32,
    },
}
