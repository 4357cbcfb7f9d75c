//! Products of complex numbers with whole parts.

use crate::kernels::Entry;

impl Entry {
    ghost use Rattle.std.specs.Prelude.{◌≡◌};
    ghost use Rattle.opc_base.specs.Optics.{product_im, product_re};

    /// The real part of the product of two complex numbers.
    #[inline]
    pub fn times_re(self, other: Entry) -> i64
        ensures { result ≡ product_re self other }
    {
        i64::from(self.re) * i64::from(other.re) - i64::from(self.im) * i64::from(other.im)
    }

    /// The imaginary part of the product of two complex numbers.
    #[inline]
    pub fn times_im(self, other: Entry) -> i64
        ensures { result ≡ product_im self other }
    {
        i64::from(self.re) * i64::from(other.im) + i64::from(self.im) * i64::from(other.re)
    }
}
