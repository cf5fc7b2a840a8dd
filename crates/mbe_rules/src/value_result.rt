//! A value that may have an error beside it.
ghost use Rattle.std.specs.Prelude.{◌≡◌, None, Some, Ok, Err, IfOk, IsOk, IsOkUnless, IsSomeAnd};
ghost use Rattle.std.specs.Prelude.{MatchOption, MatchResult};
ghost use Rattle.std.specs.Option.{ForSome};
ghost use Rattle.mbe_rules.specs.Clones.{ClonesAlike};
ghost use Rattle.symbols.specs.declared.fault.TtFault.TheVariants as fault;

use crate::expand_error::ExpandError;
use symbols::TtFault;

/// The result of an expansion: a value, which may be of use beside an error.
pub type ExpandResult<T> = ValueResult<T, ExpandError>;

/// The index of the rule that was taken, among all rules of its macro, from 0.
pub type MatchedArmIndex = Option<u32>;

/// A value, and the error that occurred on the way to it, if any.
#[derive(PartialEq, Eq, Debug, Drop)]
pub struct ValueResult<T, E> {
    pub value: T,
    pub err: Option<E>,
}

impl<T, E> ValueResult<T, E> {
    /// The value with this error.
    pub fn new(value: T, err: E) -> ValueResult<T, E>
        ensures { result ≡ record { value = value; err = Some err } }
    {
        ValueResult {
            value,
            err: Some(err),
        }
    }

    /// The value without an error.
    pub fn ok(value: T) -> ValueResult<T, E>
        ensures { result ≡ record { value = value; err = None } }
    {
        ValueResult { value, err: None }
    }

    /// The default value with this error.
    pub fn only_err(err: E) -> ValueResult<T, E>
    where
        T: Default,
        ensures value { T.is_default result.value }
        ensures err { result.err ≡ Some err }
    {
        ValueResult::new(T::default(), err)
    }

    /// The value and another one, with the same error.
    pub fn zip_val<U>(self, other: U) -> ValueResult<(T, U), E>
        ensures { result ≡ record { value = (self.value, other); err = self.err } }
    {
        ValueResult {
            value: (self.value, other),
            err: self.err,
        }
    }

    /// `f` applied to the value, with the same error.
    pub fn map<U, F: FnOnce(T) -> U>(self, f: F) -> ValueResult<U, E>
        requires { F.pre f self.value }
        ensures value { F.post f self.value result.value }
        ensures err { result.err ≡ self.err }
    {
        let ValueResult { value, err } = self;
        ValueResult {
            value: f(value),
            err,
        }
    }

    /// The same value, with `f` applied to the error, if there is one.
    pub fn map_err<E2, F: FnOnce(E) -> E2>(self, f: F) -> ValueResult<T, E2>
        requires { ForSome self.err (F.pre f) }
        ensures value { result.value ≡ self.value }
        ensures err { MatchOption self.err (result.err ≡ None) (λ e.
            IsSomeAnd result.err (F.post f e)) }
    {
        ValueResult {
            value: self.value,
            err: self.err.map(f),
        }
    }

    /// A reference to the value, with a clone of the error, which has to equal it.
    ///
    /// # Errors
    ///
    /// `Memory` if the error's clone is refused, as that of an [`ExpandError`] never is. It is the only error.
    pub fn as_ref(&self) -> Result<ValueResult<&T, E>, TtFault>
    where
        E: Clone,
        requires { ForSome self.now.err (ClonesAlike E.is_clone) }
        ensures value { IfOk result (λ r. r.value.now ≡ self.now.value) }
        ensures err { IfOk result (λ r. r.err ≡ self.now.err) }
        ensures memory { IsOkUnless result fault.Memory }
        ensures answered { ForSome self.now.err E.is_infallible → IsOk result }
    {
        Ok(ValueResult {
            value: &self.value,
            err: self.err.clone()?,
        })
    }

    /// The error if there is one, else the value.
    pub fn result(self) -> Result<T, E>
    where
        T: Drop,
        ensures { MatchOption self.err (result ≡ Ok self.value) (λ e. result ≡ Err e) }
    {
        let ValueResult { value, err } = self;
        match err {
            Some(err) => Err(err),
            None => Ok(value),
        }
    }

    /// Clones of the value and of the error, which have to equal them.
    ///
    /// # Errors
    ///
    /// `Memory` if the clone of the value or of the error is refused. It is the only error. The clone
    /// of an [`ExpandError`] never is.
    pub fn clone(&self) -> Result<ValueResult<T, E>, TtFault>
    where
        T: Clone,
        E: Clone,
        requires value { ClonesAlike T.is_clone self.now.value }
        requires err { ForSome self.now.err (ClonesAlike E.is_clone) }
        ensures same { IfOk result (λ r. r ≡ self.now) }
        ensures memory { IsOkUnless result fault.Memory }
        ensures answered { T.is_infallible self.now.value → ForSome self.now.err E.is_infallible →
            IsOk result }
    {
        let value = self.value.clone()?;
        let err = self.err.clone()?;
        Ok(ValueResult { value, err })
    }
}

impl<T: Default, E> Default for ValueResult<T, E> {
    ghost is_default = { λ r. T.is_default r.value × (r.err ≡ None) };

    /// The default value without an error.
    fn default() -> ValueResult<T, E> {
        ValueResult::ok(T::default())
    }
}

impl<T: Default, E> From<Result<T, E>> for ValueResult<T, E> {
    ghost from_gives = { λ outcome r. MatchResult outcome
        (λ value. r ≡ record { value = value; err = None })
        (λ err. T.is_default r.value × (r.err ≡ Some err)) };

    /// The value without an error, or the default value with the error.
    fn from(outcome: Result<T, E>) -> ValueResult<T, E> {
        match outcome {
            Ok(value) => ValueResult::ok(value),
            Err(err) => ValueResult::only_err(err),
        }
    }
}
