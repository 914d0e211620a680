ghost use Rattle.std.specs.Prelude.{◌≡◌};
ghost use Rattle.stock_codes.specs.Documents as documents;

use crate::StockName;

const CONSTANT: &str = "@prefix doap: <http://usefulinc.com/ns/doap#> .
@prefix lv2: <http://lv2plug.in/ns/lv2core#> .

<urn:lv2fx:const>
  a lv2:Plugin , lv2:ConstantPlugin ;
  doap:name \"Constant\" ;
  lv2:optionalFeature lv2:hardRTCapable ;
  lv2:port [
    a lv2:InputPort , lv2:ControlPort ;
    lv2:index 0 ; lv2:symbol \"value\" ; lv2:name \"Value\" ;
    lv2:default 0.0
  ] , [
    a lv2:OutputPort , lv2:AudioPort ;
    lv2:index 1 ; lv2:symbol \"out\" ; lv2:name \"Out\"
  ] .
";

const AMPLIFIER: &str = "@prefix doap: <http://usefulinc.com/ns/doap#> .
@prefix lv2: <http://lv2plug.in/ns/lv2core#> .

<urn:lv2fx:amp>
  a lv2:Plugin , lv2:AmplifierPlugin ;
  doap:name \"Amplifier\" ;
  lv2:optionalFeature lv2:hardRTCapable ;
  lv2:port [
    a lv2:InputPort , lv2:ControlPort ;
    lv2:index 0 ; lv2:symbol \"gain\" ; lv2:name \"Gain\" ;
    lv2:default 1.0
  ] , [
    a lv2:InputPort , lv2:AudioPort ;
    lv2:index 1 ; lv2:symbol \"in\" ; lv2:name \"In\"
  ] , [
    a lv2:OutputPort , lv2:AudioPort ;
    lv2:index 2 ; lv2:symbol \"out\" ; lv2:name \"Out\"
  ] .
";

const MIXER: &str = "@prefix doap: <http://usefulinc.com/ns/doap#> .
@prefix lv2: <http://lv2plug.in/ns/lv2core#> .

<urn:lv2fx:mix>
  a lv2:Plugin , lv2:MixerPlugin ;
  doap:name \"Mixer\" ;
  lv2:optionalFeature lv2:hardRTCapable ;
  lv2:port [
    a lv2:InputPort , lv2:AudioPort ;
    lv2:index 0 ; lv2:symbol \"a\" ; lv2:name \"A\"
  ] , [
    a lv2:InputPort , lv2:AudioPort ;
    lv2:index 1 ; lv2:symbol \"b\" ; lv2:name \"B\"
  ] , [
    a lv2:OutputPort , lv2:AudioPort ;
    lv2:index 2 ; lv2:symbol \"out\" ; lv2:name \"Out\"
  ] .
";

const ECHO: &str = "@prefix doap: <http://usefulinc.com/ns/doap#> .
@prefix lv2: <http://lv2plug.in/ns/lv2core#> .

<urn:lv2fx:echo>
  a lv2:Plugin , lv2:DelayPlugin ;
  doap:name \"Echo\" ;
  lv2:optionalFeature lv2:hardRTCapable ;
  lv2:port [
    a lv2:InputPort , lv2:AudioPort ;
    lv2:index 0 ; lv2:symbol \"in\" ; lv2:name \"In\"
  ] , [
    a lv2:OutputPort , lv2:AudioPort ;
    lv2:index 1 ; lv2:symbol \"out\" ; lv2:name \"Out\"
  ] , [
    a lv2:InputPort , lv2:ControlPort ;
    lv2:index 2 ; lv2:symbol \"feedback\" ; lv2:name \"Feedback\" ;
    lv2:default 0.5
  ] .
";

const FETCH: &str = "@prefix doap: <http://usefulinc.com/ns/doap#> .
@prefix lv2: <http://lv2plug.in/ns/lv2core#> .
@prefix work: <http://lv2plug.in/ns/ext/worker#> .

<urn:lv2fx:fetch>
  a lv2:Plugin ;
  doap:name \"Fetch\" ;
  lv2:optionalFeature lv2:hardRTCapable , work:schedule ;
  lv2:extensionData work:interface ;
  lv2:port [
    a lv2:OutputPort , lv2:AudioPort ;
    lv2:index 0 ; lv2:symbol \"out\" ; lv2:name \"Out\"
  ] , [
    a lv2:OutputPort , lv2:ControlPort ;
    lv2:index 1 ; lv2:symbol \"refused\" ; lv2:name \"Refused\"
  ] .
";

const BURST: &str = "@prefix doap: <http://usefulinc.com/ns/doap#> .
@prefix lv2: <http://lv2plug.in/ns/lv2core#> .
@prefix work: <http://lv2plug.in/ns/ext/worker#> .

<urn:lv2fx:burst>
  a lv2:Plugin ;
  doap:name \"Burst\" ;
  lv2:optionalFeature lv2:hardRTCapable , work:schedule ;
  lv2:extensionData work:interface ;
  lv2:port [
    a lv2:InputPort , lv2:ControlPort ;
    lv2:index 0 ; lv2:symbol \"jobs\" ; lv2:name \"Jobs\" ;
    lv2:default 3.0
  ] , [
    a lv2:InputPort , lv2:ControlPort ;
    lv2:index 1 ; lv2:symbol \"size\" ; lv2:name \"Size\" ;
    lv2:default 8.0
  ] , [
    a lv2:OutputPort , lv2:ControlPort ;
    lv2:index 2 ; lv2:symbol \"ok\" ; lv2:name \"Taken\"
  ] , [
    a lv2:OutputPort , lv2:ControlPort ;
    lv2:index 3 ; lv2:symbol \"refused\" ; lv2:name \"Refused\"
  ] , [
    a lv2:OutputPort , lv2:AudioPort ;
    lv2:index 4 ; lv2:symbol \"out\" ; lv2:name \"Out\"
  ] .
";

const KEEP: &str = "@prefix doap: <http://usefulinc.com/ns/doap#> .
@prefix lv2: <http://lv2plug.in/ns/lv2core#> .
@prefix state: <http://lv2plug.in/ns/ext/state#> .

<urn:lv2fx:keep>
  a lv2:Plugin ;
  doap:name \"Keep\" ;
  lv2:optionalFeature lv2:hardRTCapable ;
  lv2:extensionData state:interface ;
  lv2:port [
    a lv2:OutputPort , lv2:AudioPort ;
    lv2:index 0 ; lv2:symbol \"out\" ; lv2:name \"Out\"
  ] , [
    a lv2:InputPort , lv2:ControlPort ;
    lv2:index 1 ; lv2:symbol \"value\" ; lv2:name \"Value\" ;
    lv2:default 0.0
  ] .
";

const TANK: &str = "@prefix atom: <http://lv2plug.in/ns/ext/atom#> .
@prefix doap: <http://usefulinc.com/ns/doap#> .
@prefix lv2: <http://lv2plug.in/ns/lv2core#> .
@prefix patch: <http://lv2plug.in/ns/ext/patch#> .
@prefix state: <http://lv2plug.in/ns/ext/state#> .
@prefix urid: <http://lv2plug.in/ns/ext/urid#> .
@prefix work: <http://lv2plug.in/ns/ext/worker#> .

<urn:lv2fx:tank>
  a lv2:Plugin ;
  doap:name \"Tank\" ;
  lv2:requiredFeature urid:map ;
  lv2:optionalFeature lv2:hardRTCapable , work:schedule , state:threadSafeRestore ;
  lv2:extensionData work:interface , state:interface ;
  patch:readable <urn:lv2fx:level> ;
  patch:writable <urn:lv2fx:level> ;
  lv2:port [
    a lv2:InputPort , atom:AtomPort ;
    atom:bufferType atom:Sequence ; atom:supports patch:Message ;
    lv2:designation lv2:control ;
    lv2:index 0 ; lv2:symbol \"control\" ; lv2:name \"Control\"
  ] , [
    a lv2:OutputPort , atom:AtomPort ;
    atom:bufferType atom:Sequence ; atom:supports patch:Message ;
    lv2:designation lv2:control ;
    lv2:index 1 ; lv2:symbol \"notify\" ; lv2:name \"Notify\"
  ] , [
    a lv2:OutputPort , lv2:AudioPort ;
    lv2:index 2 ; lv2:symbol \"out\" ; lv2:name \"Out\"
  ] .
";

/// The declaration that comes with a code: a Turtle document.
pub(crate) fn document_of(name: StockName) -> &'static str
    ensures { result.now ≡ documents.document_of name }
{
    match name {
        StockName::Const => CONSTANT,
        StockName::Amp => AMPLIFIER,
        StockName::Mix => MIXER,
        StockName::Echo => ECHO,
        StockName::Fetch => FETCH,
        StockName::Burst => BURST,
        StockName::Keep => KEEP,
        StockName::Tank => TANK,
    }
}
