//! Products of two variables, with the place of the operator of the first one.

use crate::kinds::{Kind, check_texts};
use std::alloc::AllocError;

const PRODUCTS: &str = "\
# x*y*z: the product of the left factor comes first
x y *1 v2 *3 x gives 1..2
# x*(y*z): the outer product comes before that of its right factor
v2 x y *3 *1 x gives 1..2
# 2*x is linear, and the stated form comes before the found one
2 x *1 x y *7 gives 7..8
x y gives none
# [x*y <= x] * x: the factor in brackets holds no variable outside conditions, and the product inside counts
x y *5 x <= [] x *2 x gives 5..6";

#[test]
fn first_nonlinear_products(rt: HostRuntime) -> Result<(), AllocError> {
    check_texts(&rt, Kind::Product, &[PRODUCTS])
}
