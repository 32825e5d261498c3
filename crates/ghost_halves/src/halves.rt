//! The two halves of a value that contracts alone know.

ghost use Rattle.std.specs.Prelude.{◌≡◌, ℕ};
ghost use base.Fml.{fobs, fauth};

use crate::update::{Initial, Update};
use std::marker::{Model, PhantomData};

/// The half that stays with what is shared.
pub struct SharedHalf<T> {
    marker: PhantomData<T>,
    pub ghost name: { ℕ },
    pub ghost value: { T },
}

impl<T> Model for SharedHalf<T> {
    ghost also_owns = { λ half. fauth half.name (T.row.coded.code half.value) };
}

/// The half that goes with the one who may change it.
pub struct PrivateHalf<T> {
    marker: PhantomData<T>,
    pub ghost name: { ℕ },
    pub ghost value: { T },
}

impl<T> Model for PrivateHalf<T> {
    ghost also_owns = { λ half. fobs half.name (T.row.coded.code half.value) };
}

impl<T> Drop for SharedHalf<T> {
    fn drop(self) {
        let SharedHalf { marker: _ } = self;
    }
}

impl<T> Drop for PrivateHalf<T> {
    fn drop(self) {
        let PrivateHalf { marker: _ } = self;
    }
}

unsafe impl<T> Send for SharedHalf<T> {}

unsafe impl<T> Send for PrivateHalf<T> {}

/// Two halves of a new name.
pub fn new_halves<T: Initial>() -> (SharedHalf<T>, PrivateHalf<T>)
    ensures shared { result.0.value ≡ T.initial }
    ensures private { result.1.value ≡ T.initial }
    ensures one_name { result.1.name ≡ result.0.name }
{
    (
        SharedHalf {
            marker: PhantomData,
        },
        PrivateHalf {
            marker: PhantomData,
        },
    )
}

/// Two halves of one name say the same, and from here on what `U` makes of it.
pub fn update_halves<T, U: Update<T>>(shared: &mut SharedHalf<T>, private: &mut PrivateHalf<T>)
    requires { private.old.name ≡ shared.old.name }
    ensures same { private.old.value ≡ shared.old.value }
    ensures shared { shared.new.value ≡ U.to shared.old.value }
    ensures private { private.new.value ≡ U.to shared.old.value }
    ensures shared_name { shared.new.name ≡ shared.old.name }
    ensures private_name { private.new.name ≡ private.old.name }
{}
