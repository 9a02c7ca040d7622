//! Texts that are well formed.

ghost use Rattle.std.specs.Prelude.{◌≡◌, []};
ghost use Rattle.ep_tree.specs.Faults.{params_faults, text_faults};
ghost use Rattle.ep_tree.specs.Views.{model_tree, params_tree};

use ep_tree::{Model, Params};

/// A model in which no fault of types or categories stands.
#[derive(Drop)]
pub struct Typed {
    model: Model,
    pub ghost faultless: { text_faults (model_tree model) ≡ [] },
}

/// A parameter text, or a solution text, in whose lettings no fault of types or categories stands.
#[derive(Drop)]
pub struct TypedParams {
    params: Params,
    pub ghost faultless: { params_faults (params_tree params) ≡ [] },
}

impl Typed {
    ghost use Rattle.ep_types.specs.Texts.{typed_tree};

    /// A model that was checked.
    pub(crate) fn new(model: Model) -> Typed
        requires faultless { text_faults (model_tree model) ≡ [] }
        ensures same { typed_tree result ≡ model_tree model }
    {
        Typed { model }
    }

    /// The model.
    pub fn model(&self) -> &Model
        ensures same { model_tree result.now ≡ typed_tree self.now }
        ensures faultless { text_faults (typed_tree self.now) ≡ [] }
    {
        &self.model
    }

    /// The model, handed over.
    pub fn into_model(self) -> Model
        ensures same { model_tree result ≡ typed_tree self }
        ensures faultless { text_faults (typed_tree self) ≡ [] }
    {
        self.model
    }
}

impl TypedParams {
    ghost use Rattle.ep_types.specs.Texts.{typed_params_tree};

    /// A text that was checked.
    pub(crate) fn new(params: Params) -> TypedParams
        requires faultless { params_faults (params_tree params) ≡ [] }
        ensures same { typed_params_tree result ≡ params_tree params }
    {
        TypedParams { params }
    }

    /// The text.
    pub fn params(&self) -> &Params
        ensures same { params_tree result.now ≡ typed_params_tree self.now }
        ensures faultless { params_faults (typed_params_tree self.now) ≡ [] }
    {
        &self.params
    }

    /// The text, handed over.
    pub fn into_params(self) -> Params
        ensures same { params_tree result ≡ typed_params_tree self }
        ensures faultless { params_faults (typed_params_tree self) ≡ [] }
    {
        self.params
    }
}
