// The layers in which a day sheet is read, by name.
ghost use Rattle.std.specs.Prelude.{◌≡◌};
ghost use Rattle.show.specs.FaultText.{layer_name};

use sheets::fault::Layer;

pub fn layer_name(layer: Layer) -> &'static str
    ensures { result.now ≡ layer_name layer }
{
    match layer {
        Layer::Line => "line",
        Layer::Field => "field",
        Layer::Sheet => "sheet",
    }
}
